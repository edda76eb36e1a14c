mod batches;
mod calls;
mod ended;
mod faults;
mod fixtures;
mod workers;
mod written;
