// Readers and writers that fail, flushes, and threads that read ahead.
mod events_ahead;
mod reading_ahead;
mod stops;
mod streams;
mod waits;
mod whole;
