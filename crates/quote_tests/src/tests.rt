mod faults;
mod quotes;
mod samples;
mod selections;
mod texts;
mod uses;
