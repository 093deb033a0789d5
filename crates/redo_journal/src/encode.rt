// The bytes of a frame, put into room that is there.
ghost use Rattle.std.specs.Prelude.{◌≡◌, ◌≤◌, ◌+◌, ◌-◌, ◌++◌, ◌∷◌, [], length, drop, vec_capacity};
ghost use Rattle.std.specs.Int.{w64, to_be_bytes};
ghost use Rattle.std.specs.List.{flat_map};
ghost use Rattle.redo_journal.specs.Num.{septets, num, run};
ghost use Rattle.redo_journal.specs.Journal.{frame};
ghost use Rattle.redo_journal.specs.Journaled.{bodies_as};

// The most bytes of a number.
const MOST_SEPTETS: u32 = 10;

// Puts bytes last.
fn put_bytes(room: &mut Vec<u8>, bytes: &[u8])
    requires { length room.old.items + length bytes.now ≤ vec_capacity room.old }
    ensures items { room.new.items ≡ room.old.items ++ bytes.now }
    ensures capacity { vec_capacity room.old ≤ vec_capacity room.new }
{
    let Ok(()) = room.extend_from_slice(bytes) else {
        unreachable!()
    };
}

fn put_byte(room: &mut Vec<u8>, byte: u8)
    requires { length room.old.items + 1 ≤ vec_capacity room.old }
    ensures items { room.new.items ≡ room.old.items ++ byte ∷ [] }
    ensures capacity { vec_capacity room.old ≤ vec_capacity room.new }
{
    room.push_reserved(byte);
}

#[tactic(auto, using(crate::proofs::Septets::last_septet, crate::proofs::Septets::next_septet, crate::proofs::Septets::no_septet))]
fn put_septets(room: &mut Vec<u8>, places: u32, n: u64)
    requires { length room.old.items + length (septets places n) ≤ vec_capacity room.old }
    ensures items { room.new.items ≡ room.old.items ++ septets places n }
    ensures capacity { vec_capacity room.old ≤ vec_capacity room.new }
{
    if places == 0 {
        return;
    }
    if n < 128 {
        put_byte(room, n as u8);
        return;
    }
    put_byte(room, 128 + (n % 128) as u8);
    put_septets(room, places - 1, n / 128);
}

#[tactic(auto, unfolding(crate::specs::Num::num))]
pub(crate) fn put_num(room: &mut Vec<u8>, n: u64)
    requires { length room.old.items + length (num n) ≤ vec_capacity room.old }
    ensures items { room.new.items ≡ room.old.items ++ num n }
    ensures capacity { vec_capacity room.old ≤ vec_capacity room.new }
{
    if n < 128 {
        put_byte(room, n as u8);
        return;
    }
    put_septets(room, MOST_SEPTETS, n);
}

fn put_run(room: &mut Vec<u8>, bytes: &[u8])
    requires { length room.old.items + length (run bytes.now) ≤ vec_capacity room.old }
    ensures items { room.new.items ≡ room.old.items ++ run bytes.now }
    ensures capacity { vec_capacity room.old ≤ vec_capacity room.new }
{
    put_num(room, bytes.len() as u64);
    put_bytes(room, bytes);
}

fn put_runs(room: &mut Vec<u8>, bodies: &[Vec<u8>])
    requires { length room.old.items + length (flat_map run (bodies_as bodies.now)) ≤ vec_capacity room.old }
    ensures items { room.new.items ≡ room.old.items ++ flat_map run (bodies_as bodies.now) }
    ensures capacity { vec_capacity room.old ≤ vec_capacity room.new }
{
    for body in bodies {
        put_run(room, body);
    }
}

fn write_size(bytes: &mut [u8], size: u64)
    requires { 8 ≤ length bytes.old }
    ensures { bytes.new ≡ to_be_bytes w64 size ++ drop 8 bytes.old }
{
    bytes[..8].copy_from_slice(&size.to_be_bytes());
}

// Writes how many bytes stand behind the first eight into these.
fn set_size(room: &mut Vec<u8>)
    requires { 8 ≤ length room.old.items }
    ensures items { room.new.items ≡ to_be_bytes w64 (length room.old.items - 8) ++ drop 8 room.old.items }
    ensures capacity { vec_capacity room.old ≤ vec_capacity room.new }
{
    let size = (room.len() - 8) as u64;
    write_size(room, size);
}

/// Puts the frame of these bodies, and a closed gate behind it, in place of what stood in the room.
pub(crate) fn encode(room: &mut Vec<u8>, bodies: &[Vec<u8>])
    requires { length (frame (bodies_as bodies.now)) ≤ vec_capacity room.old }
    ensures items { room.new.items ≡ frame (bodies_as bodies.now) }
    ensures capacity { vec_capacity room.old ≤ vec_capacity room.new }
{
    room.clear();
    put_bytes(room, &[0; 8]);
    put_num(room, bodies.len() as u64);
    put_runs(room, bodies);
    set_size(room);
    put_byte(room, 0);
}
