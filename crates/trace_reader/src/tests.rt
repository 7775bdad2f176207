mod accepted;
mod limits;
mod refusals;
mod texts;
