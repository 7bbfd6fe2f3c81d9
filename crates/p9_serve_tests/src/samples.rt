//! Sample worlds, and what is bound in them.

use p9_base::NodeRef;
use p9_space::Order;

/// The sample world: /a is 1, /a/b is 2 and /a/f is 3.
pub const SMALL: &str = "\
server main
dir /a 755 glenda glenda
dir /a/b 755 glenda glenda
file /a/f 644 glenda glenda 6869
user glenda
";

/// Two directories with a file of one name: /u is 1, /u/n is 2, /x is 3 and /x/n is 4.
pub const TWO_UNIONS: &str = "\
server main
dir /u 755 glenda glenda
file /u/n 644 glenda glenda 75
dir /x 755 glenda glenda
file /x/n 644 glenda glenda 78
user glenda
";

/// The root and a public directory, which is 1, beside a vault, which is 2, with its key.
pub const VAULT: &str = "\
server main
dir /pub 777 sys sys
dir /vault 000 sys sys
file /vault/key 600 sys sys 01
user glenda
hide main /vault
";

/// The certificate of the root and of node 1.
pub const CERTIFICATE: &str = "cert 1\ndir 0 0\ndir 0 1\n";

/// A node of server 0 that is bound at the place of another, in this order, with or without
/// creation.
#[derive(Clone, Copy)]
pub struct Bind {
    pub key: u64,
    pub node: u64,
    pub order: Order,
    pub create: bool,
}

/// The node of this number at server 0.
pub fn node(number: u64) -> NodeRef {
    NodeRef { server: 0, number }
}
