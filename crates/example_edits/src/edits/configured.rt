// A window of two hours.
pub const TWO_HOURS: &str = "signal = \"7\"\nstart = \"2024-03-04T06\"\nhours = 2\n";

// A window of three hours.
pub const THREE_HOURS: &str = "signal = \"7\"\nstart = \"2024-03-04T06\"\nhours = 3\n";

// Two hours with phase 2.
pub const ONE_PHASE: &str =
    "signal = \"7\"\nstart = \"2024-03-04T06\"\nhours = 2\n\n[[phase]]\nnumber = 2\nring = 1\nside = 1\n";

// Phase 2 is to be green for 15 seconds.
pub const ONE_INTERVAL: &str =
    "signal = \"7\"\nstart = \"2024-03-04T06\"\nhours = 2\n\n[[phase]]\nnumber = 2\nring = 1\nside = 1\n\n[[interval]]\nchannel = \"phase 2\"\ncolour = \"Green\"\nat_least = 150\n";

// 700 hours with phase 2.
pub const MANY_HOURS: &str =
    "signal = \"7\"\nstart = \"2024-03-04T06\"\nhours = 700\n\n[[phase]]\nnumber = 2\nring = 1\nside = 1\n";
