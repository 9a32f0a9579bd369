mod cores;
mod queries;
mod rows;
mod traces;
