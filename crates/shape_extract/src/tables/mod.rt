// Tables of pins and labels, made once: frames of pins, rows, ports, and which labels mark which pins.
pub mod label_texts;
pub mod labels;
pub mod layout_tables;
pub mod mark_table;
pub mod marking;
pub mod pin_frames;
pub mod pin_rows;
pub mod pins_in_frames;
pub mod ports;
pub mod row_edges;
