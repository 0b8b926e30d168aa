//! Reports that tests read.

/// A run of three chains, all through.
pub(crate) const IMPORT: &[u8] = b"block orders done
input []
port 0 [\"1001\",\"1002\",\"1003\"]
held 0 []
link 0 [\"1001\",\"1002\",\"1003\"]
left []
block order_numbers done
port 0 [\"1001\",\"1002\",\"1003\"]
held 0 []
record [1001,1002,1003]
block customers done
input []
port 0 [\"Ada Lovelace\",\"Hopper, Grace\",\"Zo\xc3\xab \\\"Zed\\\" M\xc3\xbcller\"]
held 0 []
link 4 [\"Ada Lovelace\",\"Hopper, Grace\",\"Zo\xc3\xab \\\"Zed\\\" M\xc3\xbcller\"]
left []
block labels done
port 0 [\"Ada Lovelace\",\"Hopper, Grace\",\"Zo\xc3\xab \\\"Zed\\\" M\xc3\xbcller\"]
held 0 []
record [\"Ada Lovelace\",\"Hopper, Grace\",\"Zo\xc3\xab \\\"Zed\\\" M\xc3\xbcller\"]
quiet
";

/// A run in which an action faulted on its third message.
pub(crate) const FAULT: &str = "block prices completing
input []
port 0 [\"12\",\"7\",\"seven\",\"120\"]
held 0 []
link 0 [\"12\",\"7\",\"seven\"]
left [\"120\"]
block cents faulted 1
port 0 [\"12\",\"7\",\"seven\"]
held 0 [\"seven\"]
record [1200,700]
quiet
";

/// A run in which a link was cut at its `max`.
pub(crate) const ROUTES: &str = "block orders done
input []
port 0 [\"40\",\"700\",\"99\",\"100\",\"5\",\"60\"]
held 0 []
link 0 [\"40\",\"700\",\"99\",\"100\",\"5\",\"60\"]
left []
block sizes done
port 0 [\"40\",\"700\",\"99\",\"100\",\"5\",\"60\"]
held 0 []
link 1 [40,99]
link 2 [5,60]
link 3 [700,100]
left []
block checked open
port 0 [40,99]
held 0 []
record [40,99]
block small done
port 0 [5,60]
held 0 []
record [5,60]
block large done
port 0 [700,100]
held 0 []
link 4 [700,100]
left []
block desk done
port 0 [700,100]
held 0 []
record [700,100]
quiet
";
