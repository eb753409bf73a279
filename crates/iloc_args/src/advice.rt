//! What is said besides where the parser refuses a word, if that may help.
use std::alloc::{AllocError, Global};

/// What the parser says of a word that is none of the command's.
const UNEXPECTED: &str = "error: unexpected argument '";

/// How its own tip begins. It advises to have `--` precede the word, which is refused too.
const ITS_TIP: &str = "  tip: to pass ";

/// What is said of a word that is no number.
const WORDS: &str = "a WORD is a number from 0 to 4294967295, which stands for -1";

/// What the parser says of a word in the place of a command.
const NO_COMMAND: &str = "error: unrecognized subcommand '";

/// What may help with what the parser says first, by a part of that.
const TIPS: [(&str, &str); 9] = [
    (
        "unexpected argument '-j",
        "workers are given by --workers N, in schedule, counts, compare, optimize and explain",
    ),
    (
        "unexpected argument '-v'",
        "ilocfarm --version prints the version",
    ),
    (
        "unexpected argument '--latency'",
        "latencies are given by --load N, --store N and --mult N",
    ),
    (
        "'--workers <N>': invalid digit",
        "N is a number from 1 to 8",
    ),
    (
        "'--at <N>': invalid digit",
        "N is a multiple of 4, from 0 to 65532",
    ),
    (
        "'--nodes <N>': invalid digit",
        "N is a number from 0 to 100000",
    ),
    ("'--load <N>': invalid digit", "N is a number from 1 to 16"),
    ("'--store <N>': invalid digit", "N is a number from 1 to 16"),
    ("'--mult <N>': invalid digit", "N is a number from 1 to 16"),
];

/// What may help with what the parser says first.
#[derive(Clone, Copy)]
struct Advice<'a> {
    /// Say what a WORD is.
    of_words: bool,
    /// Say how the command of this name is given a file.
    of_input: Option<&'a str>,
    /// Say this.
    of_option: Option<&'static str>,
}

/// Whether a file is in the place of a command.
fn is_file(what: &str) -> bool {
    what.strip_prefix(NO_COMMAND)
        .is_some_and(|word| word.contains(".") || word.contains("/"))
}

impl<'a> Advice<'a> {
    fn on(what: &str, takes_words: bool, command: &'a str) -> Advice<'a> {
        let refused = what.strip_prefix(UNEXPECTED);
        let is_option = refused.is_some_and(|word| word.starts_with('-'));
        let is_negative = is_option
            && what.as_bytes()[UNEXPECTED.len() + 1..]
                .first()
                .is_some_and(|byte| byte.is_ascii_digit());
        let is_no_word = what.contains("for '[WORD]...'");
        Advice {
            of_words: is_no_word || (is_negative && takes_words),
            of_input: if is_file(what) {
                Some("COMMAND")
            } else if is_no_word || (refused.is_some() && !is_option) {
                Some(command)
            } else {
                None
            },
            of_option: TIPS
                .iter()
                .copied()
                .find(|(part, _)| what.contains(*part))
                .map(|(_, tip)| tip),
        }
    }

    fn push(self, text: &mut String) -> Result<(), AllocError> {
        if self.of_words || self.of_input.is_some() || self.of_option.is_some() {
            text.push_str("\n")?;
        }
        if self.of_words {
            write!(text, "\n  tip: {WORDS}")?;
        }
        if let Some(command) = self.of_input {
            write!(
                text,
                "\n  tip: a file is given by \"<\": ilocfarm {command} < FILE"
            )?;
        }
        if let Some(tip) = self.of_option {
            write!(text, "\n  tip: {tip}")?;
        }
        Ok(())
    }
}

/// The parser's text on a mistake in the words of this command, with advice in place of its own.
pub fn advised(alloc: Global, said: &str, command: &str) -> Result<String, AllocError> {
    let Some((what, rest)) = said.split_once("\n\n") else {
        return String::from_str(alloc, said);
    };
    let (takes_words, rest) = match rest
        .strip_prefix(ITS_TIP)
        .and_then(|tip| tip.split_once("\n\n"))
    {
        Some((_, after)) => (true, after),
        None => (false, rest),
    };
    let mut text = String::from_str(alloc, what)?;
    Advice::on(what, takes_words, command).push(&mut text)?;
    text.push_str("\n\n")?;
    text.push_str(rest)?;
    Ok(text)
}
