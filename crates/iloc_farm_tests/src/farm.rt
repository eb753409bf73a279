mod apart;
mod end_to_end;
mod fakes;
mod listings;
mod refusals;
mod threads;
