//! What holds of what goes over a link, whatever the bytes. Nothing runs here.
ghost use Rattle.link_frames.specs.Laws as laws;

/// A hello, an answer and batches within the limits, each written after the other, are read again, up to a rest that
/// begins with no part.
pub fn written_parts_are_read()
    ensures { laws.written_parts_are_read }
{}

/// All bytes are the spellings of the parts that are read of them, in order and within the limits, and a rest that begins
/// with none. So each batch that is given had its length, its partition and its checksum.
pub fn read_parts_are_spelled()
    ensures { laws.read_parts_are_spelled }
{}

/// More bytes go on from the bytes after the last whole part. After a fault they change nothing.
pub fn reading_goes_on()
    ensures goes_on { laws.reading_goes_on }
    ensures ends { laws.a_fault_ends_reading }
{}

/// What an end of a link is asked tells its role and both hellos.
pub fn questions_stay_apart()
    ensures { laws.questions_stay_apart }
{}
