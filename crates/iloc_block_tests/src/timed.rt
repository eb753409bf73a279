mod run;
mod schedule;
mod simulator;
