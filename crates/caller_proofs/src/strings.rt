//! Strings: the maximum number of bytes, by a call that lends them, and bytes that are removed. Each function is proved from the
//! contract of its call.
ghost use Rattle.std.specs.Prelude.{◌≡◌, ◌≤◌, ◌==◌, filter, length, not};

use ix_string::{PolymorphicString, StaticString, String};

type Name = StaticString<8>;

pub fn bytes_len(name: &Name) -> usize
    ensures { result ≤ 8 }
{
    name.as_bytes().len()
}

pub fn bytes_len_of<const N: usize>(name: &StaticString<N>) -> usize
    ensures { result ≤ N }
{
    name.as_bytes().len()
}

pub fn constant_bytes_len(name: &Name) -> usize
    ensures { result ≤ 8 }
{
    name.as_bytes_const().len()
}

pub fn str_len(name: &Name) -> usize
    ensures { result ≤ 8 }
{
    name.as_str().len()
}

pub fn deref_len(name: &Name) -> usize
    ensures { result ≤ 8 }
{
    let text: &str = name;
    text.len()
}

pub fn allocated_len(name: &PolymorphicString) -> usize
    ensures { result ≤ name.now.capacity }
{
    name.as_bytes().len()
}

pub fn without_byte(name: &mut Name, unwanted: u8)
    ensures { name.new ≡ filter (λ byte. not (byte == unwanted)) name.old }
{
    name.remove_if(|byte| byte == unwanted);
}

pub fn without_byte_as_upstream(name: &mut Name, unwanted: u8)
    ensures { name.new ≡ filter (λ byte. not (byte == unwanted)) name.old }
{
    name.retain(|byte| byte == unwanted);
}
