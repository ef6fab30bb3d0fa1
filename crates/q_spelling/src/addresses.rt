//! Addresses and prefixes.
ghost use Rattle.std.specs.Prelude.{◌≡◌, ◌≤◌, ◌++◌, ◌∷◌, [], length};
ghost use Rattle.q_line.specs.Spelling.{address_word, given, prefix_word};
ghost use Rattle.q_show.specs.Lengths.{GrowsBy, HasRoom, most_name};
ghost use Rattle.q_spelling.specs.Lengths.{most_address, most_address_option, most_prefix};
ghost use Rattle.q_spelling.specs.Words.{spaced};

use q_model::{IpPrefix, IpVersion};
use q_show::{Text, put_address};

/// A prefix, where it is given.
pub fn put_given_prefix(text: &mut Text, name: &[u8], prefix: Option<IpPrefix>)
    requires room { HasRoom text.old most_prefix }
    requires name { length name.now ≤ most_name }
    ensures text { text.new ≡ text.old ++ spaced (given name.now prefix_word prefix) }
    ensures short { GrowsBy text.old text.new most_prefix }
{
    if let Some(prefix) = prefix {
        text.put_name(name);
        put_address_word(text, prefix.version, prefix.address);
        text.put(b"/");
        text.put_number(u64::from(prefix.len));
    }
}

/// An address behind its name.
pub fn put_named_address(text: &mut Text, name: &[u8], version: IpVersion, address: u128)
    requires room { HasRoom text.old most_address_option }
    requires name { length name.now ≤ most_name }
    ensures text { text.new ≡ text.old ++ spaced (name.now ∷ address_word version address ∷ []) }
    ensures short { GrowsBy text.old text.new most_address_option }
{
    text.put_name(name);
    put_address_word(text, version, address);
}

/// An address, as a line has it.
fn put_address_word(text: &mut Text, version: IpVersion, address: u128)
    requires { HasRoom text.old most_address }
    ensures text { text.new ≡ text.old ++ address_word version address }
    ensures short { GrowsBy text.old text.new most_address }
{
    put_address(text, version, address);
}
