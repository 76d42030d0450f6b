mod arena;
mod chains;
mod gaps;
mod index;
mod quarters;
mod readings;
