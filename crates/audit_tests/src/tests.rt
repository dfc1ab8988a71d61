mod check;
mod diff;
mod replay;
mod text;
mod types;
mod verify;
