// Objects come to a receiver: headers and segments, each by itself or in a data group. The calls hand on to the data, each with
// its own arguments; body memory is lent to each call and not kept.
ghost use Rattle.std.specs.Prelude.{◌≡◌};
ghost use Rattle.receiver.specs.Answers.{GroupStays, Stays, group_reply};
ghost use Rattle.receiver.specs.Receivers.{world};
ghost use Rattle.rules.specs.Assembly.{segment_step};
ghost use Rattle.rules.specs.Effects.{group_effects, header_effects, segment_effects};
ghost use Rattle.rules.specs.Groups.{group_step};
ghost use Rattle.rules.specs.Headers.{header_step};
ghost use Rattle.rules.specs.Reached.{Reached};

use crate::faults::{EXPIRY_NOT_AHEAD, NOT_HELD};
use crate::filings::Received;
use crate::headers::Heard;
use crate::receivers::Receiver;
use datagroup::groups::Group;
use datagroup::read_group;
use display::Display;
use rules::answers::{Answer, GroupAnswer};
use slots::bodies::Sent;
use slots::moves::passed;
use slots::sought::Arriving;

impl<D: Display, P> Receiver<D, P> {
    // Takes a header that is sent under a TransportId: an image begins an object or is sent again for a held slide, an update
    // changes a held slide.
    pub fn header(&mut self, memory: &[u8], transport: u16, bytes: &[u8]) -> Answer
        ensures world { (result, world D.Display.meaning self.new memory.now) ≡ header_step (world D.Display.meaning self.old memory.now) transport bytes.now }
        ensures shows { Reached D.Display.told self.old.display (header_effects (world D.Display.meaning self.old memory.now) transport bytes.now) self.new.display }
        ensures refused { Stays result self.old self.new }
    {
        let header = match self.parts.header_in(memory, bytes) {
            Ok(header) => header,
            Err(fault) => return Answer::Refused(fault),
        };
        match self.parts.heard(transport, &header) {
            Heard::New => self
                .parts
                .new_image(transport, &header)
                .unwrap_or_else(Answer::Refused),
            Heard::Again(number) => Answer::Repeat(number),
            Heard::Changed(_) if passed(self.parts.clock, header.expire) => {
                Answer::Refused(EXPIRY_NOT_AHEAD)
            }
            Heard::Changed(k) => {
                self.parts.vacate(&Arriving(transport));
                self.parts.resend(k, transport);
                self.parts.amend(&mut self.display, memory, k, &header)
            }
            Heard::Update(k) => self.parts.amend(&mut self.display, memory, k, &header),
            Heard::Stray => Answer::Refused(NOT_HELD),
        }
    }

    // Takes a segment of the object that is sent under a TransportId: its bytes go into body memory, and with the last one
    // missing the slide is filed.
    #[tactic(auto, using(crate::proofs::Tellings::filing_told))]
    pub fn segment(&mut self, memory: &mut [u8], transport: u16, sent: &Sent<'_>) -> Answer
        ensures world { (result, world D.Display.meaning self.new memory.new) ≡ segment_step (world D.Display.meaning self.old memory.old) transport sent.now.number sent.now.last sent.now.bytes.now }
        ensures shows { Reached D.Display.told self.old.display (segment_effects (world D.Display.meaning self.old memory.old) transport sent.now.number sent.now.last sent.now.bytes.now) self.new.display }
        ensures refused { Stays result self.old self.new }
    {
        match self.parts.receive(memory, transport, sent) {
            Err(fault) => Answer::Refused(fault),
            Ok(Received::Again(number)) => Answer::Repeat(number),
            Ok(Received::Part(number)) => Answer::Taken(number),
            Ok(Received::Whole(k, arrival)) => {
                self.parts.categorise(arrival.category, arrival.number);
                self.parts
                    .arm(&mut self.display, memory, k, arrival.trigger)
                    .told(arrival.number, Answer::Filed(arrival.number))
            }
        }
    }

    // Takes a data group: the header or the segment in it, under the TransportId in it. A group of another type is passed over.
    #[tactic(auto, unfolding(rules::specs::Groups::group_step, rules::specs::Effects::group_effects))]
    pub fn group(&mut self, memory: &mut [u8], bytes: &[u8]) -> GroupAnswer
        ensures world { (group_reply result, world D.Display.meaning self.new memory.new) ≡ group_step (world D.Display.meaning self.old memory.old) bytes.now }
        ensures shows { Reached D.Display.told self.old.display (group_effects (world D.Display.meaning self.old memory.old) bytes.now) self.new.display }
        ensures refused { GroupStays result self.old self.new }
    {
        if let Err(fault) = self.parts.admit(memory) {
            return GroupAnswer::Answered(Answer::Refused(fault));
        }
        match read_group(bytes) {
            Ok(Group::Header { transport, bytes }) => {
                GroupAnswer::Answered(self.header(memory, transport, bytes))
            }
            Ok(
                Group::Segment {
                    transport,
                    number,
                    last,
                    bytes,
                },
            ) => {
                let sent = Sent {
                    number,
                    last,
                    bytes,
                };
                GroupAnswer::Answered(self.segment(memory, transport, &sent))
            }
            Ok(Group::Other) => GroupAnswer::PassedOver,
            Err(fault) => GroupAnswer::Answered(Answer::Refused(fault)),
        }
    }
}
