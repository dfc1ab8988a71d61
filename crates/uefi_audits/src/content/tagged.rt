ghost use Rattle.std.specs.Prelude.{◌≡◌, ◌^◌, ◌<◌, length};
ghost use Rattle.tcg_event.specs.Tagged.{AreTagged};
ghost use Rattle.uefi_audits.specs.private.content.Tagged.{HasTagged, HasTagged-prop};

use tcg_event::TaggedEvents;

/// The tagged events that the data of an event are, and the bytes after them.
///
/// A view: it borrows the bytes that it was read from.
#[derive(Clone, Copy)]
pub struct TaggedData<'a> {
    bytes: &'a [u8],
    pub ghost split: { HasTagged bytes.now } by { HasTagged-prop bytes.now },
}

impl<'a> TaggedData<'a> {
    /// Returns the tagged events that the bytes begin with.
    pub(crate) fn new(bytes: &'a [u8]) -> TaggedData<'a>
        ensures { AreTagged bytes.now result.split.0.0 result.split.0.1 }
    {
        let _events = TaggedEvents::new(bytes);
        TaggedData { bytes }
    }

    /// Returns an iterator over the tagged events, in order.
    pub fn iter(&self) -> TaggedEvents<'a>
        ensures events { result.events ≡ self.now.split.0.0 }
        ensures countable { length result.events < 2 ^ 64 }
    {
        TaggedEvents::new(self.bytes)
    }

    /// Returns the bytes after the last tagged event.
    pub fn rest(&self) -> &'a [u8]
        ensures { result.now ≡ self.now.split.0.1 }
    {
        let mut events = TaggedEvents::new(self.bytes);
        while let Some(_) = events.next() {}
        events.rest()
    }
}
