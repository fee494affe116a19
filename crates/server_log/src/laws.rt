//! What holds of all events and their encodings: each function's contract is a law, and its body is empty.

ghost use Rattle.server_log.specs.Laws.{ReadsWhatIsWritten, NoEncodingIsAPrefix, ReadsWhatIsEncodable};

/// What is written is read, whatever comes after it.
pub fn what_is_written_is_read()
    ensures { ReadsWhatIsWritten }
{}

/// No encoding is a prefix of another.
pub fn no_encoding_is_a_prefix()
    ensures { NoEncodingIsAPrefix }
{}

/// What is read is encoded so: an event has one encoding.
pub fn what_is_read_is_encoded_so()
    ensures { ReadsWhatIsEncodable }
{}
