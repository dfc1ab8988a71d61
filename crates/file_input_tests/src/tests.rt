mod files;
mod readers;
mod reading;
