ghost use Rattle.std.specs.Prelude.{◌≡◌, ◌≤◌, ◌+◌, length};
ghost use Rattle.wasi_p0.specs.Slot.{clock_in, clock_named, clock_wait, known_flags, number_at, put, slot_in, tag_field, wait_in, with_clock, with_slot, with_wait};
ghost use Rattle.wasi_p0.specs.Slots.{overwritten, slot_at};

use bitflags::Flags;
use byteorder::{ByteOrder, LittleEndian};
use wasi_p1::{p0, p1};

/// The length of a slot in bytes.
pub(crate) const SIZE: usize = 48;

// Where the numbers of a slot stand.
const USERDATA: usize = 0;

const TAG: usize = 8;

const CLOCK: usize = 16;

const DESCRIPTOR: usize = 16;

const TIMEOUT: usize = 24;

const PRECISION: usize = 32;

const FLAGS: usize = 40;

fn clock_of(number: u32) -> Option<p0::Clockid>
    ensures { result ≡ clock_named number }
{
    match number {
        0 => Some(p0::Clockid::Realtime),
        1 => Some(p0::Clockid::Monotonic),
        2 => Some(p0::Clockid::ProcessCputimeId),
        3 => Some(p0::Clockid::ThreadCputimeId),
        _ => None,
    }
}

fn flags_of(bits: u16) -> Option<p0::Subclockflags>
    ensures { result ≡ known_flags bits }
{
    p0::Subclockflags::from_bits(bits)
}

fn clock_wait_of(
    id: Option<p0::Clockid>,
    flags: Option<p0::Subclockflags>,
    timeout: u64,
    precision: u64,
) -> Result<p0::SubscriptionU, p0::Errno>
    ensures { result ≡ clock_wait id flags timeout precision }
{
    match (id, flags) {
        (Some(id), Some(flags)) => Ok(p0::SubscriptionU::Clock(p0::SubscriptionClock {
            id,
            timeout,
            precision,
            flags,
        })),
        _ => Err(p0::Errno::Inval),
    }
}

fn tag_of(slot: &[u8]) -> u8
    requires { length slot.now ≡ 48 }
    ensures { result ≡ number_at tag_field slot.now }
{
    slot[TAG]
}

fn read_clock(slot: &[u8]) -> Result<p0::SubscriptionU, p0::Errno>
    requires { length slot.now ≡ 48 }
    ensures { result ≡ clock_in slot.now }
{
    let id = clock_of(LittleEndian::read_u32(&slot[CLOCK..]));
    let flags = flags_of(LittleEndian::read_u16(&slot[FLAGS..]));
    let timeout = LittleEndian::read_u64(&slot[TIMEOUT..]);
    let precision = LittleEndian::read_u64(&slot[PRECISION..]);
    clock_wait_of(id, flags, timeout, precision)
}

fn read_wait(slot: &[u8]) -> Result<p0::SubscriptionU, p0::Errno>
    requires { length slot.now ≡ 48 }
    ensures { result ≡ wait_in slot.now }
{
    match tag_of(slot) {
        0 => read_clock(slot),
        1 => Ok(p0::SubscriptionU::FdRead(p0::SubscriptionFdReadwrite {
            file_descriptor: LittleEndian::read_u32(&slot[DESCRIPTOR..]),
        })),
        2 => Ok(p0::SubscriptionU::FdWrite(p0::SubscriptionFdReadwrite {
            file_descriptor: LittleEndian::read_u32(&slot[DESCRIPTOR..]),
        })),
        _ => Err(p0::Errno::Inval),
    }
}

fn read_slot(slot: &[u8]) -> Result<p0::Subscription, p0::Errno>
    requires { length slot.now ≡ 48 }
    ensures { result ≡ slot_in slot.now }
{
    let userdata = LittleEndian::read_u64(&slot[USERDATA..]);
    match read_wait(slot) {
        Ok(u) => Ok(p0::Subscription { userdata, u }),
        Err(errno) => Err(errno),
    }
}

/// The slot that stands at a place: `Fault` where the memory ends before the slot does, `Inval`
/// for a tag, a clock or a flag that there isn't.
pub(crate) fn read(memory: &[u8], place: usize) -> Result<p0::Subscription, p0::Errno>
    ensures { result ≡ slot_at place memory.now }
{
    if memory.len() < SIZE || memory.len() - SIZE < place {
        return Err(p0::Errno::Fault);
    }
    read_slot(&memory[place..place + SIZE])
}

fn write_u16(slot: &mut [u8], place: usize, number: u16)
    requires { place + 2 ≤ length slot.old }
    ensures { slot.new ≡ put (record { place = place; width = 2 }) number slot.old }
{
    LittleEndian::write_u16(&mut slot[place..], number);
}

fn write_u32(slot: &mut [u8], place: usize, number: u32)
    requires { place + 4 ≤ length slot.old }
    ensures { slot.new ≡ put (record { place = place; width = 4 }) number slot.old }
{
    LittleEndian::write_u32(&mut slot[place..], number);
}

fn write_u64(slot: &mut [u8], place: usize, number: u64)
    requires { place + 8 ≤ length slot.old }
    ensures { slot.new ≡ put (record { place = place; width = 8 }) number slot.old }
{
    LittleEndian::write_u64(&mut slot[place..], number);
}

fn write_tag(slot: &mut [u8], tag: u8)
    requires { length slot.old ≡ 48 }
    ensures { slot.new ≡ put tag_field tag slot.old }
{
    slot[TAG] = tag;
}

fn write_clock(slot: &mut [u8], clock: p1::SubscriptionClock)
    requires { length slot.old ≡ 48 }
    ensures { slot.new ≡ with_clock clock slot.old }
{
    write_u32(slot, CLOCK, clock.id as u32);
    write_u64(slot, TIMEOUT, clock.timeout);
    write_u64(slot, PRECISION, clock.precision);
    write_u16(slot, FLAGS, clock.flags.bits());
}

fn write_wait(slot: &mut [u8], wait: p1::SubscriptionU)
    requires { length slot.old ≡ 48 }
    ensures { slot.new ≡ with_wait wait slot.old }
{
    match wait {
        p1::SubscriptionU::Clock(clock) => {
            write_tag(slot, 0);
            write_clock(slot, clock);
        }
        p1::SubscriptionU::FdRead(wait) => {
            write_tag(slot, 1);
            write_u32(slot, DESCRIPTOR, wait.file_descriptor);
        }
        p1::SubscriptionU::FdWrite(wait) => {
            write_tag(slot, 2);
            write_u32(slot, DESCRIPTOR, wait.file_descriptor);
        }
    }
}

fn write_slot(slot: &mut [u8], wait: p1::Subscription)
    requires { length slot.old ≡ 48 }
    ensures { slot.new ≡ with_slot wait slot.old }
{
    write_u64(slot, USERDATA, wait.userdata);
    write_wait(slot, wait.u);
}

/// Writes a slot's numbers at a place, and no other byte.
pub(crate) fn write(memory: &mut [u8], place: usize, wait: p1::Subscription)
    requires { place + 48 ≤ length memory.old }
    ensures { memory.new ≡ overwritten place wait memory.old }
{
    write_slot(&mut memory[place..place + SIZE], wait);
}
