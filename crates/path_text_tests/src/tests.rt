mod from_text;
