mod effect;
mod interpreter;
mod run;
