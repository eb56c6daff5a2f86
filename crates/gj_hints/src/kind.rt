//! The hints, and what each says.
ghost use Rattle.std.specs.Prelude.{◌≡◌};

/// What a file, or the bytes at a place of it, look like.
#[derive(Clone, Copy, Debug, PartialEq, Eq)]
pub enum Hint {
    Gzip,
    Zip,
    Shapefile,
    /// An SQLite database, as a GeoPackage is.
    GeoPackage,
    FlatGeobuf,
    Parquet,
    Pdf,
    Kml,
    Gml,
    Html,
    Xml,
    Utf16,
    /// Letters in Latin-1, Windows-1252 or the like.
    Latin1,
    NotANumber,
    Infinity,
    SingleQuotes,
    Comment,
    ExtraComma,
    /// A second text follows the first.
    SecondText,
    /// The byte RS begins the file.
    TextSequence,
    TopoJson,
    EsriJson,
    TextInString,
    SwappedAxes,
    /// Numbers far beyond any degree.
    Metres,
    /// A number has more than 30 digits.
    ManyDigits,
    /// A number is greater than any that is read.
    LargeNumber,
    /// A number is nearer to zero than any that is read.
    SmallNumber,
    /// A PNG, JPEG, GIF or TIFF.
    Image,
    Gpx,
    /// GPX that begins with waypoints.
    Waypoints,
    /// A table of columns, as a CSV.
    Columns,
    /// A table as psql prints it.
    Psql,
    /// A text as a CSV has it.
    DoubledQuotes,
    /// A text in a program in JavaScript.
    Script,
    /// It begins with a word.
    PlainText,
    /// A text is where the byte RS is due.
    NoSeparator,
    /// Marks of a merge.
    Conflict,
    Zeros,
    PythonWord,
    /// What Python prints.
    PythonText,
    /// A word that is none of JSON's, where a value is due.
    Word,
    /// A name without quotation marks.
    PlainName,
    /// A line break or a tab in a string.
    LineBreak,
    Backslash,
    /// A quotation mark in a string.
    InnerQuote,
    TypographicQuotes,
    NumberForm,
    DecimalComma,
    MissingComma,
    MissingBrace,
    /// A comma after a whole text.
    CommaBetween,
    /// A type or coordinates are null.
    NullGeometry,
}

/// The hints in their order, each with what it says: one line, with the command that makes the file right. None has a control
/// character, a quotation mark or a backslash, so that it stands as it is in a JSON string. A macro takes them.
#[macro_export]
macro_rules! hint_texts {
    ($form:ident) => {
        $form! {
            Hint:
            Gzip => "the file is compressed by gzip: gzip -dc < IN > OUT.geojson",
            Zip => "the file is a zip archive: unzip IN, and see what is in it",
            Shapefile => "the file is a shapefile: ogr2ogr -f GeoJSON -lco RFC7946=YES OUT.geojson IN, if its name ends with .shp",
            GeoPackage => "the file is an SQLite database, such as a GeoPackage: ogr2ogr -f GeoJSON -lco RFC7946=YES OUT.geojson IN, with the name of a layer after it where there are several",
            FlatGeobuf => "the file is a FlatGeobuf: ogr2ogr -f GeoJSON -lco RFC7946=YES OUT.geojson IN",
            Parquet => "the file is a Parquet file: ogr2ogr -f GeoJSON -lco RFC7946=YES OUT.geojson IN",
            Pdf => "the file is a PDF document: ask for the data; ogr2ogr -f GeoJSON -lco RFC7946=YES OUT.geojson IN reads a PDF with map layers",
            Kml => "the file is KML: ogr2ogr -f GeoJSON -lco RFC7946=YES OUT.geojson IN",
            Gml => "the file is GML: ogr2ogr -f GeoJSON -lco RFC7946=YES OUT.geojson IN",
            Html => "the file is a web page, mostly one that shows an error or asks to log in: curl -fL -o OUT.geojson URL",
            Xml => "the file is XML: ogr2ogr -f GeoJSON -lco RFC7946=YES OUT.geojson IN, if it is a map format",
            Utf16 => "the file is in UTF-16: iconv -f UTF-16 -t UTF-8 IN > OUT.geojson",
            Latin1 => "these letters are not in UTF-8: iconv -f WINDOWS-1252 -t UTF-8 IN > OUT.geojson",
            NotANumber => "JSON has no NaN: json5 -o OUT.geojson IN writes null, which is right in properties and wrong in coordinates",
            Infinity => "JSON has no Infinity: json5 -o OUT.geojson IN writes null, which is right in properties and wrong in coordinates",
            SingleQuotes => "JSON has no single quotes: json5 -o OUT.geojson IN, or json.dumps if Python wrote it",
            Comment => "JSON has no comments: json5 -o OUT.geojson IN removes those that begin with // or /*",
            ExtraComma => "there is a comma too many: json5 -o OUT.geojson IN removes one before a closing bracket",
            SecondText => "a second text follows the first: geolint-files --ndjson IN, if each line is a text, or else jq -c . IN > OUT.ndjson",
            TextSequence => "the file is a text sequence (RFC 8142): geolint-files --seq IN",
            TopoJson => "the file is TopoJSON: ogr2ogr -f GeoJSON -lco RFC7946=YES OUT.geojson IN",
            EsriJson => "the file is Esri JSON: ask the server with f=geojson, or ogr2ogr -f GeoJSON -lco RFC7946=YES OUT.geojson IN",
            TextInString => "an object is inside a string: leave out its quotation marks and their backslashes; if it is the whole file: jq fromjson IN > OUT.geojson",
            SwappedAxes => "latitude and longitude look swapped; the longitude comes first: ogr2ogr -ct '+proj=axisswap +order=2,1' -lco RFC7946=YES OUT.geojson IN",
            Metres => "the coordinates look like metres, not degrees: ogr2ogr -t_srs EPSG:4326 -lco RFC7946=YES OUT.geojson IN, with -s_srs where the file names no reference system",
            ManyDigits => "the number has more than 30 digits; 17 are enough for any double, and 7 decimal places are a centimetre",
            LargeNumber => "the number is too large, above 10 to the power of 400",
            SmallNumber => "the number is nearly zero, below 10 to the power of -400: write 0",
            Image => "the file is an image: ask for the data that it shows",
            Gpx => "the file is GPX: ogr2ogr -f GeoJSON -lco RFC7946=YES OUT.geojson IN tracks, or with routes at the end if it has those",
            Waypoints => "the file is GPX: ogr2ogr -f GeoJSON -lco RFC7946=YES OUT.geojson IN waypoints, or with tracks or routes at the end if it has those too",
            Columns => "the file is a table, such as a CSV: ogr2ogr -f GeoJSON -lco RFC7946=YES OUT.geojson CSV:/vsistdin/ -oo 'X_POSSIBLE_NAMES=lon*,lng,x' -oo 'Y_POSSIBLE_NAMES=lat*,y' < IN",
            Psql => "the file is a table as psql prints it: psql -At prints the text alone; of one column and row: sed -n 3p IN > OUT.geojson",
            DoubledQuotes => "the text is in quotation marks, and its own are doubled, as in a CSV: python3 -c 'import sys; print(sys.stdin.read().strip()[1:-1].replace(2 * chr(34), chr(34)))' < IN > OUT.geojson",
            Script => "the file is a script: perl -0777 -pe 's/^[^{]*//; s/[^}]*$//' IN > OUT.geojson leaves out what stands before the first { and after the last }",
            PlainText => "the file begins with a word and is no JSON; look at what it says: head IN",
            NoSeparator => "each text of a text sequence comes after a byte RS, and here is none: geolint-files --ndjson IN, if each line is a text",
            Conflict => "a merge left both sides of a conflict: keep one of them, without the lines of <<<<<<<, ======= and >>>>>>>",
            Zeros => "there are bytes of zero: the file was not written or copied to its end; fetch or write it again",
            PythonWord => "JSON has true, false and null for Python's True, False and None: sed 's/: *True/: true/g; s/: *False/: false/g; s/: *None/: null/g' IN > OUT.geojson",
            PythonText => "the text is as Python prints it: python3 -c 'import ast, json, sys; print(json.dumps(ast.literal_eval(sys.stdin.read())))' < IN > OUT.geojson",
            Word => "JSON has no words but true, false and null: a text needs quotation marks, and what is not known is null",
            PlainName => "a name needs quotation marks: json5 -o OUT.geojson IN",
            LineBreak => "a line break or a tab in a string is written as a backslash with n or t: python3 -c 'import json, sys; json.dump(json.load(sys.stdin, strict=False), sys.stdout)' < IN > OUT.geojson",
            Backslash => "a backslash in a string is written twice, as in the path of a file",
            InnerQuote => "a quotation mark in a string needs a backslash before it",
            TypographicQuotes => "JSON has no typographic quotation marks: python3 -c 'import sys; print(sys.stdin.read().translate({8220: 34, 8221: 34, 8222: 34}))' < IN > OUT.geojson makes all of them straight",
            NumberForm => "JSON writes 0.5 for .5, 5.0 for 5. and 5 for +5 or 05: json5 -o OUT.geojson IN, where no 0 comes before a digit",
            DecimalComma => "a number has a point and no comma: write 41.5 for 41,5",
            MissingComma => "a comma is missing before this",
            MissingBrace => "the object before this one is closed, and that around it is not: write } where it ends",
            CommaBetween => "a comma comes after a whole text: sed 's/,[[:space:]]*$//' IN > OUT.ndjson, if each line is a text",
            NullGeometry => "a geometry that is not known is null as a whole, without a type and coordinates",
        }
    };
}

macro_rules! pairs {
    ($of:ident: $($name:ident => $text:literal,)*) => {
        [$(($of::$name, $text)),*]
    };
}

/// Each hint with what it says, in their order.
const TEXTS: [(Hint, &str); 53] = hint_texts!(pairs);

impl Hint {
    ghost use Rattle.std.specs.Prelude.{◌≡◌, length, map};
    ghost use Rattle.std.specs.List.{range_with_len};
    ghost use Rattle.gj_hints.specs.declared.kind.TheConstants.{TEXTS};
    ghost use Rattle.gj_hints.specs.Texts.{place_of, text_of};

    /// What it says. In the table each hint stands at its own place.
    #[tactic(auto, unfolding(crate::specs::Texts::text_of))]
    pub fn text(self) -> &'static str
        ensures text { result.now ≡ text_of self }
        ensures places { map (λ row. place_of row.0) TEXTS ≡ range_with_len 0 (length TEXTS) }
    {
        match TEXTS.get(self as usize) {
            Some(row) => row.1,
            None => "",
        }
    }
}
