mod loopback;
mod owners;
mod reading;
mod words;
