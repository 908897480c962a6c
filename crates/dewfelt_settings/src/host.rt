//! Names of hosts.

ghost use Rattle.std.specs.Prelude.{◌≡◌, ◌≤◌, length, take, MatchOption};
ghost use Rattle.std.specs.List.{list_all};
ghost use Rattle.dewfelt_settings.specs.Hosts.{IsHostName, is_host_octet};

/// The most octets that a host's name has, with its port (this project's own).
pub const HOST_ROOM: usize = 128;

/// A host's name, with its port where a browser sends that.
#[derive(Clone, Copy)]
pub struct HostName {
    pub octets: [u8; HOST_ROOM],
    /// How many of the octets are the name's.
    pub count: u8,
    pub ghost within: { count ≤ 128 },
}

// Whether a name may have this octet. (browsers send names in small letters)
fn is_host_octet(octet: u8) -> bool
    ensures { result ≡ is_host_octet octet }
{
    octet.is_ascii_lowercase() || octet.is_ascii_digit() || b".-_:[]".contains(&octet)
}

// Whether a name may have all of these octets.
fn are_host_octets(octets: &[u8]) -> bool
    ensures { result ≡ list_all is_host_octet octets.now }
{
    octets.iter().all(|octet| is_host_octet(*octet))
}

// The name of these octets.
fn kept(octets: &[u8]) -> HostName
    requires { length octets.now ≤ 128 }
    ensures { take result.count result.octets ≡ octets.now }
{
    let count = octets.len();
    let mut kept = [0; HOST_ROOM];
    kept[..count].copy_from_slice(octets);
    HostName {
        octets: kept,
        count: count as u8,
    }
}

impl HostName {
    /// The name of this text: 1 to 128 small letters, digits, `.`, `-`, `_`, and `:`, `[` and `]` of a port and of an address of
    /// IPv6, in any order. What is no name of a host is taken too: no browser sends it.
    pub fn of(text: &str) -> Option<HostName>
        ensures { MatchOption result (IsHostName text.now → ⊥)
            (λ name. IsHostName text.now × (take name.count name.octets ≡ text.now)) }
    {
        let octets = text.as_bytes();
        if octets.is_empty() || octets.len() > HOST_ROOM {
            return None;
        }
        if !are_host_octets(octets) {
            return None;
        }
        Some(kept(octets))
    }

    /// The name.
    pub fn as_str(&self) -> &str {
        match std::str::from_utf8(&self.octets[..self.count as usize]) {
            Ok(name) => name,
            Err(_) => "",
        }
    }
}
