ghost use Rattle.std.specs.Prelude.{◌≡◌, List};
ghost use Rattle.frame_codec.specs.declared.frames.Frame.{Frame as FrameOf};

use frame_codec::Frame;
use std::marker::Model;

/// The frames of a message, in order.
#[derive(Debug, Drop)]
pub struct Frames {
    list: Vec<Frame>,
}

impl Model for Frames {
    ghost use Rattle.std.specs.Prelude.{List};
    ghost use Rattle.frame_codec.specs.declared.frames.Frame.{Frame as FrameOf};

    ghost Value = { List FrameOf };

    ghost view = { λ frames. frames.list.items };
}

impl Frames {
    /// The frames of a `Vec`, which is taken over whole. Takes no memory.
    pub fn from_vec(list: Vec<Frame>) -> Self
        ensures { result ≡ list.items }
    {
        Frames { list }
    }

    /// The frames as a `Vec` again. Takes no memory.
    pub fn into_vec(self) -> Vec<Frame>
        ensures { result.items ≡ self }
    {
        self.list
    }

    pub fn as_slice(&self) -> &[Frame]
        ensures { result.now ≡ self.now }
    {
        self.list.as_slice()
    }
}

/// A message, whole.
#[derive(Debug, Drop)]
pub struct Message {
    pub frames: Frames,
}
