/// SHA-256 of the sources that the program is proved from, this file left out, in hexadecimal. `tools/release` writes it.
pub const SOURCES: &str = "6d51917daca53b8bb97c16289504f25a63e40530acd699be6ed142b0cd9b0a01";
