mod client;
mod sessions_at_once;
