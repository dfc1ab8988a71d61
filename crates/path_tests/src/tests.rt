mod appends;
mod boxes;
mod builders;
mod written_options;
