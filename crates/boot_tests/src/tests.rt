mod arguments;
mod folders;
mod memory;
mod runs;
mod variables;
