mod memory;
mod runs;
mod writers;
