//! The result of a callback.

/// Says whether a callback is to be called again. The closure of [`MetaMap::list_keys`](crate::map::MetaMap::list_keys) returns it.
///
/// This is `CallbackProgression` of iceoryx2-bb-elementary, which iceoryx2-bb-container uses.
#[derive(Clone, Copy, PartialEq, Eq, Debug)]
pub enum CallbackProgression {
    /// Call again.
    Continue,
    /// Do not call again.
    Stop,
}
