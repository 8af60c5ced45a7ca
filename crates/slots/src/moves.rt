// How events move a slot.
ghost use Rattle.std.specs.Prelude.{◌≡◌, map, replicate, slice_index_or, slice_set};
ghost use Rattle.header.specs.Kept.{name_of, no_name};
ghost use Rattle.header.specs.Names.{NameRecord};
ghost use Rattle.slots.specs.Seen.{seen, state_of, event_of, object_of, slide_in, label, all_seen, all_names};
ghost use Rattle.slots.specs.Slides.{passed, ends, moved, free, arriving, slide_of};
ghost use Rattle.slots.specs.Slides as slides;

use crate::progress::Segment;
use crate::records::{Arrival, Event, Holding, Slot, Slots, State};
use header::names::Name;
use moment::times::Time;

// Whether an expire time has come by a moment.
pub fn passed(moment: u64, expire: Option<Time>) -> bool
    ensures { result ≡ passed moment expire }
{
    match expire {
        None => false,
        Some(Time::Now) => true,
        Some(Time::At(end)) => end <= moment,
    }
}

impl State {
    // Whether what is in the slot has expired by a moment.
    pub fn ends_by(&self, moment: u64) -> bool
        ensures { (n : NameRecord) → result ≡ ends moment (state_of self.now n) }
    {
        match self {
            State::Free => false,
            State::Arriving(arrival) => passed(moment, arrival.expire),
            State::Held(holding) => passed(moment, holding.expire),
        }
    }
}

// The slide that an object becomes.
impl From<Arrival> for Holding {
    ghost from_gives = { λ a h. (n : NameRecord) → slide_in h n ≡ slide_of (object_of a n) };

    fn from(arrival: Arrival) -> Holding {
        Holding {
            transport: arrival.transport,
            number: arrival.number,
            version: arrival.version,
            expire: arrival.expire,
            size: arrival.progress.size,
        }
    }
}

impl Arrival {
    // The object with a segment, or the slide once all is there.
    fn with(self, segment: Segment) -> State
        ensures { (n : NameRecord) → state_of result n ≡ moved (slides.segment segment) (arriving (object_of self n)) }
    {
        let mut arrival = self;
        let _ = arrival.progress.take(segment);
        if !arrival.progress.is_complete() {
            return State::Arriving(arrival);
        }
        State::Held(Holding::from(arrival))
    }
}

impl Slot {
    // Moves the slot by its present state. A header that takes it brings its name by `take`.
    pub fn on(&mut self, event: Event)
        ensures seen { seen self.new ≡ moved (event_of event (name_of self.old.name)) (seen self.old) }
        ensures name { self.new.name ≡ self.old.name }
    {
        self.state = match (self.state, event) {
            (_, Event::Header(arrival)) => State::Arriving(arrival),
            (State::Arriving(arrival), Event::Segment(segment)) => arrival.with(segment),
            (state, Event::Expiry(moment)) if state.ends_by(moment) => State::Free,
            (State::Held(holding), Event::Resent(transport)) => State::Held(Holding {
                transport,
                ..holding
            }),
            (_, Event::Clearing) => State::Free,
            (state, _) => state,
        };
    }

    // A header takes the slot for its object, whose name this is.
    pub fn take(&mut self, arrival: Arrival, name: Name)
        ensures seen { seen self.new ≡ moved (slides.header (object_of arrival (name_of name))) (seen self.old) }
        ensures name { self.new.name ≡ name }
    {
        self.name = name;
        self.on(Event::Header(arrival));
    }
}

impl Slots {
    // All slots free.
    pub fn new() -> Slots
        ensures seen { all_seen result ≡ replicate 12 free }
        ensures names { all_names result ≡ replicate 12 no_name }
    {
        let slot = Slot {
            state: State::Free,
            name: Name::blank(),
        };
        Slots {
            records: [slot; 12],
        }
    }

    // Moves slot k by its present state; past the end nothing changes. Any number is taken for k, here, in `take` and in
    // `first_free`: a `SlotIndex` would ask more of callers. By `get_mut` it was tried: the check then finds nothing of what is
    // left of the other slots.
    pub fn on(&mut self, k: usize, event: Event)
        ensures seen { all_seen self.new ≡ slice_set (all_seen self.old) k (moved (event_of event (slice_index_or (all_names self.old) k no_name)) (slice_index_or (all_seen self.old) k free)) }
        ensures names { all_names self.new ≡ all_names self.old }
    {
        let slots = &mut self.records;
        if k < slots.len() {
            slots[k].on(event);
        }
    }

    // A header takes slot k for its object, whose name this is; past the end nothing changes.
    #[tactic(auto, using(crate::proofs::Changed::write_map))]
    pub fn take(&mut self, k: usize, arrival: Arrival, name: Name)
        ensures seen { all_seen self.new ≡ slice_set (all_seen self.old) k (moved (slides.header (object_of arrival (name_of name))) (slice_index_or (all_seen self.old) k free)) }
        ensures names { all_names self.new ≡ slice_set (all_names self.old) k (name_of name) }
    {
        let slots = &mut self.records;
        if k < slots.len() {
            slots[k].take(arrival, name);
        }
    }
}
