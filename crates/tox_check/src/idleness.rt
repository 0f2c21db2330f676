//! Why a toxic of a chain changes nothing.
ghost use Rattle.std.specs.Prelude.{◌≡◌, ◌<◌, length, IsSome};
ghost use Rattle.std.specs.List.{list_any};
ghost use Rattle.tox_check.specs.Idle.{ChangesNothing, cuts_last, drops_all, has_no_time, idleness_at, is_lost, reason};

use tox_defs::{Chain, Entry, MAX_TOXICITY, Toxic, Window};

/// Why a toxic changes nothing.
#[derive(Clone, Copy, Debug, PartialEq, Eq)]
pub enum Idleness {
    /// It is a latency of 0 without jitter, or a slow_close of 0.
    DoesNothing,
    /// It is a latency, bandwidth or slicer whose `until` is no later than its `from`.
    HasNoTime,
    /// A timeout that begins at once and is always applied drops all data: behind the toxic, or before it where it works on data alone.
    Lost,
    /// It is a slicer without delay, and no toxic stands behind it.
    CutsLast,
}

/// Why the toxic at a place of a chain changes nothing. None: it may change something, or no toxic stands there.
///
/// What changes nothing could have the toxicity 0: each byte would leave at the same instant, and the link would end alike.
pub fn idleness_at(chain: &Chain, place: usize) -> Option<Idleness>
    ensures found { result ≡ idleness_at place chain.now.entries }
    ensures unchanged { IsSome result → ChangesNothing place chain.now }
{
    if chain.len() <= place {
        return None;
    }
    let entries = chain.entries();
    reason(place, &entries[place].toxic, entries)
}

/// Why the toxic at this place of these changes nothing.
fn reason(place: usize, toxic: &Toxic, entries: &[Entry]) -> Option<Idleness>
    requires { place < length entries.now }
    ensures { result ≡ reason place toxic.now entries.now }
{
    if toxic.effect().does_nothing {
        Some(Idleness::DoesNothing)
    } else if has_no_time(toxic) {
        Some(Idleness::HasNoTime)
    } else if is_lost(place, toxic, entries) {
        Some(Idleness::Lost)
    } else if cuts_last(place, toxic, entries) {
        Some(Idleness::CutsLast)
    } else {
        None
    }
}

/// Whether every chunk is outside a toxic's time: it stops, and no later than it begins.
fn has_no_time(toxic: &Toxic) -> bool
    ensures { result ≡ has_no_time toxic.now }
{
    let Window { from, until } = toxic.window();
    0 < until && until <= from
}

/// Whether the toxic at a place has no data to work on, or its work is lost.
fn is_lost(place: usize, toxic: &Toxic, entries: &[Entry]) -> bool
    requires { place < length entries.now }
    ensures { result ≡ is_lost place toxic.now entries.now }
{
    (toxic.effect().needs_data && some_drops_all(&entries[..place]))
        || some_drops_all(&entries[place + 1..])
}

/// Whether one of some toxics drops all data on each link.
fn some_drops_all(entries: &[Entry]) -> bool
    ensures { result ≡ list_any drops_all entries.now }
{
    entries.iter().any(|entry| drops_all(entry))
}

/// Whether an entry drops all data on each link: its toxic does, and is always applied.
fn drops_all(entry: &Entry) -> bool
    ensures { result ≡ drops_all entry.now }
{
    entry.toxic.effect().drops_data && entry.toxicity == MAX_TOXICITY
}

/// Whether the toxic at a place cuts chunks for none behind it.
fn cuts_last(place: usize, toxic: &Toxic, entries: &[Entry]) -> bool
    requires { place < length entries.now }
    ensures { result ≡ cuts_last place toxic.now entries.now }
{
    toxic.effect().only_cuts && entries.len() <= place + 1
}
