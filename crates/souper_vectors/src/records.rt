//! The functions of the program for stores: the records of items.
mod checks;
mod closed;
mod faults;
mod going_on;
mod hints;
mod layouts;
mod lines;
mod objects;
mod pauses;
mod streams;
mod support;
mod texts;
mod uniques;
