//! The content of the slots of a map.
ghost use Rattle.std.specs.Prelude.{◌≡◌, Bool};

/// The content that a slot of a [`MetaMap`](crate::map::MetaMap) can have: something with a key. A map has methods for a [`Pair`]
/// alone.
pub trait Keyed {
    /// The two have equal keys.
    ghost has_key_of: { Self → Self → Bool };
}

/// A type that comes apart into a key and its value, as every [`Pair`] does.
pub trait IntoItem: Keyed {
    /// The type of the key.
    type Key;

    /// The type of the value.
    type Value;

    /// The key, and its value.
    ghost item: { Self → Self.Key × Self.Value };

    /// Returns the key and its value.
    fn into_item(self) -> (Self::Key, Self::Value)
        ensures { result ≡ item self };
}

/// A key and its value, as the tables of a map hold them.
#[derive(Debug, Drop)]
pub struct Pair<K, V> {
    /// The key.
    pub key: K,
    /// The value of the key.
    pub value: V,
}

impl<K: Eq, V> Keyed for Pair<K, V> {
    ghost has_key_of = { λ pair other. K.eq pair.key other.key };
}

impl<K: Eq, V> IntoItem for Pair<K, V> {
    type Key = K;

    type Value = V;

    ghost item = { λ pair. (pair.key, pair.value) };

    #[inline]
    fn into_item(self) -> (K, V) {
        (self.key, self.value)
    }
}
