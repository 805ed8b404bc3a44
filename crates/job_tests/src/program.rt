mod calls;
mod dialling;
mod dots;
