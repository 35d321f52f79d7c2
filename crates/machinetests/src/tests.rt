//! Texts that are read up to a limit, machines that are advanced, and machines that are reset.
mod advancing;
mod feeding;
mod reading;
mod resetting;
