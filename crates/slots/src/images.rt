// What an image header says of an object, and whether two of them say the same.
ghost use Rattle.std.specs.Prelude.{◌≡◌, Decides};
ghost use Rattle.header.specs.Finds.{name_of_label};
ghost use Rattle.header.specs.Headers.{record_of};
ghost use Rattle.header.specs.Kept.{name_of};
ghost use Rattle.slots.specs.Seen.{object_of};
ghost use Rattle.slots.specs.Slides.{category_of, same_time, same_category, same_image, image_of, arrival, comes_again};

use crate::progress::Progress;
use crate::records::{Arrival, Slot, State};
use crate::sought::SlotTest;
use header::kinds::{Category, Header};
use header::names::Name;
use moment::times::Time;

// The version that a header gives; a missing one is 0.
pub fn version_of(header: &Header<'_>) -> u8
    ensures { result ≡ (image_of (record_of header.now)).version }
{
    header.version.unwrap_or(0)
}

// The category that a header gives: 00 00 means none.
pub fn real_category(category: Option<Category>) -> Option<Category>
    ensures { result ≡ category_of category }
{
    category.filter(|given| given.category != 0 || given.slide != 0)
}

impl Arrival {
    // An object of which nothing has come yet, as its header announces it.
    pub fn new(transport: u16, number: u32, header: &Header<'_>) -> Arrival
        ensures { object_of result (name_of_label header.now.name) ≡ arrival transport number (image_of (record_of header.now)) }
    {
        Arrival {
            transport,
            number,
            subtype: header.subtype,
            version: version_of(header),
            expire: header.expire,
            trigger: header.trigger,
            category: real_category(header.category),
            progress: Progress::new(header.body_size),
        }
    }

    // Whether the header says what the one of this object, under this name, said. Value by value: record and header are two
    // types, and a header holds more.
    pub fn same_image(&self, name: &Name, header: &Header<'_>) -> bool
        ensures value { result ≡ same_image (object_of self.now (name_of name.now)).image (image_of (record_of header.now)) }
        ensures test { Decides result ((object_of self.now (name_of name.now)).image ≡ image_of (record_of header.now)) }
    {
        self.progress.size == header.body_size
            && self.subtype == header.subtype
            && name.is(header.name)
            && self.version == version_of(header)
            && self.expire == header.expire
            && self.trigger == header.trigger
            && self.category == real_category(header.category)
    }
}

// Its object arrives under this TransportId from a header that said the same.
#[derive(Clone, Copy)]
pub struct ComesAgain<'a> {
    pub transport: u16,
    pub header: Header<'a>,
}

impl<'a> SlotTest for ComesAgain<'a> {
    ghost test = { λ t x. comes_again t.transport (image_of (record_of t.header)) x };

    fn passes(&self, slot: &Slot) -> bool {
        matches!(slot.state, State::Arriving(arrival)
            if arrival.transport == self.transport && arrival.same_image(&slot.name, &self.header))
    }
}
