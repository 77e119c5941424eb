//! The engine: which entries a log has after many submits, what threads are answered that submit, ask and read on at once,
//! where clients find objects, and that a call which lacked memory can be made again.

mod begins;
mod clients;
mod desk;
mod gates;
mod growths;
mod idle;
mod lines;
mod opened;
mod submits;
mod workers;
