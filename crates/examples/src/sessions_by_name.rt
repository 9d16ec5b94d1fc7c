//! Sessions by the name of their peer, in a map of either kind: a few in a flat map, a thousand in a hash map.
ghost use Rattle.std.specs.Prelude.{◌≡◌, ◌↔◌, ℕ, [], Some, None, Err, IsTrue, IsSome, IsOk, OnErr, IfSome, option_map, false};
ghost use Rattle.std.specs.Bool.{OnFalse};
ghost use Rattle.examples.specs.declared.sessions_by_name.Seen.{Seen};
ghost use Rattle.ix_maps.specs.MapState.{map_value};
ghost use Rattle.ix_flatmap.specs.declared.map.map_error.MapError.TheVariants.{KeyAlreadyExists, IsFull};

use ix_maps::{FixedSizeFlatMap, FixedSizeHashMap, KeyIndex, MapError, MetaMap, Pair, Storage};
use std::hash::RandomState;

/// The data of a session.
#[derive(Clone, Copy, PartialEq, Eq, Debug)]
pub struct Seen {
    pub opened: u64,
    pub last_heard: u64,
}

/// Sessions by the name of their peer, in a map of any kind.
pub type Sessions<N, M, I> = MetaMap<Pair<N, Seen>, M, I>;

/// At most 16 sessions. A look-up may compare the name with each of them.
pub type FewSessions<N> = FixedSizeFlatMap<N, Seen, 16>;

/// At most 1,024 sessions. A look-up may compare the name with those in its bucket.
///
/// Peers choose their names, so the hasher is std's `RandomState`, which draws a seed. A map is made by
/// `ManySessions::with_hasher(RandomState::new(&rt)?)`. If the seed is known, as that of the default hasher, a stranger finds 1,024
/// names with one bucket. Then a look-up may compare a name with all of them. No contract here depends on the hasher.
pub type ManySessions<N> = FixedSizeHashMap<N, Seen, 1024, RandomState>;

/// Opens the session of a peer at `time`. Returns an error if the peer has one, or if there is no room.
pub fn open<N: Eq + Drop, M: Storage<Pair<N, Seen>>, I: KeyIndex<N, Seen>>(
    sessions: &mut Sessions<N, M, I>,
    peer: N,
    time: u64,
) -> Result<(), MapError>
    ensures opened { IsOk result → map_value N.eq sessions.new peer
        ≡ Some (record { opened = time; last_heard = time }) }
    ensures taken { result ≡ Err KeyAlreadyExists
        ↔ IsSome (map_value N.eq sessions.old peer) }
    ensures full { result ≡ Err IsFull → sessions.old.free ≡ [] }
    ensures refused { OnErr result (sessions.new ≡ sessions.old) }
    ensures kept { (other : N) → N.eq other peer ≡ false
        → map_value N.eq sessions.new other
        ≡ map_value N.eq sessions.old other }
{
    sessions.insert(
        peer,
        Seen {
            opened: time,
            last_heard: time,
        },
    )
}

/// Opens the session of a peer at `time` if it has none and there is room. A map that is not full accepts a new key. Returns
/// `false` otherwise.
pub fn open_new<N: Eq + Drop, M: Storage<Pair<N, Seen>>, I: KeyIndex<N, Seen>>(
    sessions: &mut Sessions<N, M, I>,
    peer: N,
    time: u64,
) -> bool
    ensures opened { IsTrue result → map_value N.eq sessions.new peer
        ≡ Some (record { opened = time; last_heard = time }) }
    ensures refused { OnFalse result (sessions.new ≡ sessions.old) }
{
    if sessions.is_full() || sessions.contains(&peer) {
        return false;
    }
    let opened = open(sessions, peer, time).is_ok();
    prove!(opened);
    true
}

/// Notes that a peer was heard at `time`. Returns `false` if it has no session.
pub fn note_heard<N: Eq + Drop, M: Storage<Pair<N, Seen>>, I: KeyIndex<N, Seen>>(
    sessions: &mut Sessions<N, M, I>,
    peer: &N,
    time: u64,
) -> bool
    ensures value { IsTrue result ↔ IsSome (map_value N.eq sessions.old peer.now) }
    ensures heard { IfSome (map_value N.eq sessions.new peer.now)
        (λ seen. seen.last_heard ≡ time) }
    ensures opened { option_map (λ (seen : Seen). seen.opened)
        (map_value N.eq sessions.new peer.now)
        ≡ option_map (λ (seen : Seen). seen.opened)
        (map_value N.eq sessions.old peer.now) }
    ensures kept { (other : N) → N.eq other peer.now ≡ false
        → map_value N.eq sessions.new other
        ≡ map_value N.eq sessions.old other }
{
    match sessions.get_mut_ref(peer) {
        Some(seen) => {
            seen.last_heard = time;
            true
        }
        None => false,
    }
}

/// Closes the session of a peer and returns its data, or `None` if the peer has no session.
pub fn close<N: Eq + Drop, M: Storage<Pair<N, Seen>>, I: KeyIndex<N, Seen>>(
    sessions: &mut Sessions<N, M, I>,
    peer: &N,
) -> Option<Seen>
    ensures value { result ≡ map_value N.eq sessions.old peer.now }
    ensures closed { map_value N.eq sessions.new peer.now ≡ None }
    ensures kept { (other : N) → N.eq other peer.now ≡ false
        → map_value N.eq sessions.new other
        ≡ map_value N.eq sessions.old other }
{
    sessions.remove(peer)
}
