//! A source and a sink over memory, which fail where they are told to.

mod sink;
mod source;

pub use sink::BytesSink;
pub use source::BytesSource;
