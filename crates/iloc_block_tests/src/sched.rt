mod by_address;
mod delay_pairs;
mod heuristics;
mod refusals;
