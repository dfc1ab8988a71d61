mod paths;
mod types;
mod writers;
