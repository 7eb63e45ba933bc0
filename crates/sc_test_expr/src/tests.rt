mod expressions;
mod limits;
mod reading;
mod refusals;
mod showing;
mod sizes;
