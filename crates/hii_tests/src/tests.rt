mod memory;
mod samples;
