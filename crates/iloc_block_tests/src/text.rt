mod diary;
mod file;
mod reader;
mod spelling;
mod stream;
mod text_parts;
