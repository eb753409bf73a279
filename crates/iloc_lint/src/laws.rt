//! Laws of faults, as contracts of functions that do nothing.
ghost use Rattle.iloc_lint.specs.Laws.{NoFaultsMeanAFile, TheFirstIsTheReaders};

/// Promise: a text in which no line is refused is a file, of as many blocks as are counted.
pub fn no_faults_mean_a_file()
    ensures { NoFaultsMeanAFile }
{}

/// Promise: the first fault that is listed is the one for which the reader refuses the text.
pub fn the_first_is_the_readers()
    ensures { TheFirstIsTheReaders }
{}
