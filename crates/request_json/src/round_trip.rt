//! What the writer and the reader of requests say of one another. The law is a function that does
//! nothing, and whose contract states it.
ghost use Rattle.request_json.specs.Laws.{WrittenRequestsAreReadAgain};

/// A valid request, as it is written, is read again as that request, alone and with a line feed behind it.
pub fn written_requests_are_read_again()
    ensures { WrittenRequestsAreReadAgain }
{}
