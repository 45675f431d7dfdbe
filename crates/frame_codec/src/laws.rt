//! What holds of frames as they are written and read, whatever the bytes. Nothing runs here.
ghost use Rattle.frame_codec.specs.Laws as laws;

/// Frames within the limits that are written one after the other are read again, with their places,
/// up to a rest that begins with no whole frame.
pub fn written_frames_are_read()
    ensures { laws.written_frames_are_read }
{}

/// All bytes are the spellings of the frames that are read of them, and a rest that begins with none.
pub fn read_frames_are_spelled()
    ensures { laws.read_frames_are_spelled }
{}

/// No spelling of a frame is a proper front of another's.
pub fn no_frame_begins_another()
    ensures { laws.no_frame_begins_another }
{}

/// More bytes go on from the bytes after the last whole frame. After a fault they change nothing.
pub fn reading_goes_on()
    ensures goes_on { laws.reading_goes_on }
    ensures ends { laws.a_fault_ends_reading }
{}

/// The place of a reader's next byte is at most that of its stream's, so a bound on the stream's bytes bounds it.
pub fn a_reader_is_within_its_stream()
    ensures { laws.a_reader_is_within_its_stream }
{}
