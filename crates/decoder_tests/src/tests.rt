mod decimal;
mod event;
mod frame;
mod marked;
