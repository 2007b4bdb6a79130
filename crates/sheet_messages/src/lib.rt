// The longest messages of a ring's masters, page 02 'Ask 8': which are given, and what counts for each master.
#![tactic(auto)]

ghost use Rattle.std.specs.Prelude.{◌≡◌, ◌≤◌, length, get_or};
ghost use Rattle.common.specs.Runs.{tab};
ghost use Rattle.sheet_messages.specs.Messages.{message_by, lacks_in, message_at};

// The greatest longest message, which a missing one counts as.
const GREATEST: u32 = 100000;

// One of masters 1..n has none.
pub fn lacks(given: &[u32; 33], n: u32) -> bool
    requires { n ≤ 32 }
    ensures { result ≡ lacks_in n given.now }
{
    let last = n as usize;
    given[1..=last].contains(&0)
}

// What counts for a master: its own where it is given, and else the greatest.
fn counted(message: u32) -> u32
    ensures { result ≡ message_by message }
{
    if message == 0 { GREATEST } else { message }
}

// What counts for each master.
pub fn count_missing(messages: &mut [u32; 33])
    ensures { messages.new ≡ tab (λ y. message_by (get_or messages.old y 0)) 33 }
{
    for message in messages.iter_mut() {
        *message = counted(*message);
    }
}

// What counts for the master y of a record, which may be any number as long as its range was not looked at.
pub fn message_of(messages: &[u32; 33], y: u32) -> u32
    ensures { result ≡ message_at messages.now y }
{
    if 32 < y {
        return messages[0];
    }
    let place = y as usize;
    messages[place]
}
